// The visit report of a capture: what it is, and that the table which a visit leaves, in whatever chunks, has its lines.
#![tactic(auto)]

ghost use Rattle.report.specs.Totals.{TotalsOfLines, OneLineEach, ReportOfTable, KindsAddUp};
ghost use Rattle.report.specs.InChunks.{ReportInChunks};
ghost use Rattle.report.specs.Example.{WorkedReport};

// The records in use at the end hold the totals of the listing's own lines, counted since the last admission.
fn totals_of_lines()
    ensures { TotalsOfLines }
{}

// Each stream has one line.
#[tactic(auto, using(crate::proofs::Totals::one_line_each))]
fn one_line_each()
    ensures { OneLineEach }
{}

// The report is the text of the table at the end.
#[tactic(auto, using(crate::proofs::Totals::report_of_table))]
fn report_of_table()
    ensures { ReportOfTable }
{}

// The kinds add up to the accepted frames while that count is below its cap.
#[tactic(auto, using(crate::proofs::AddingUp::kinds_add_up))]
fn kinds_add_up()
    ensures { KindsAddUp }
{}

// A report in any chunks is the report of the whole.
#[tactic(auto, using(crate::proofs::InChunks::report_in_chunks))]
fn report_in_chunks()
    ensures { ReportInChunks }
{}

// The rules report on a record, on document 01's capture and its parts, on a visit with a removal, which is not obeyed, on stamps about half a
// wrap away, and on streams with limits and of both tags as they should.
fn worked_report()
    ensures { WorkedReport }
{}

// What the program says of itself.
use program::Texts;

pub(crate) fn texts() -> Texts {
    Texts {
        name: b"avtp_report",
        version: b"avtp_report 1.5\n",
        usage: b"usage: avtp_report [FILE]\n\
        avtp_report --help says more.\n",
        help: b"usage: avtp_report [FILE]\n\
        \n\
        Prints the visit report of a capture of AVTP streams: a line for each stream\n\
        that it admits, in their order, and no other line. Without FILE, or where FILE\n\
        is -, standard input is read.\n\
        \n\
        \x20 -h, --help  print this help\n\
        \x20 --version   print the version\n\
        \x20 --          the word after this one is FILE\n\
        \n\
        The columns of a line, decimal, with a space between:\n\
        \x20  1      the stream's id\n\
        \x20  2      accepted frames since it was admitted\n\
        \x20  3-6    of these: sequence breaks, block breaks, format changes, mr changes\n\
        \x20  7-13   how many had a time of each kind: none, cut, outside, late, ahead,\n\
        \x20         unclear, far\n\
        \x20 14-17   over the first 1,000,000 late or ahead (no others), in nanoseconds:\n\
        \x20         smallest and largest offset, sum, and mean as the sum over its count;\n\
        \x20         or none\n\
        \x20 18      late or ahead, and not among these\n\
        \n\
        avtp_report(1) explains each column, and avtp_list(1) each line of a capture's\n\
        listing, of which these are the totals. avtp_list --help has the format of\n\
        captures.\n\
        \n\
        The exit status is 0 in every case (signals aside, as where the reader of a\n\
        pipe leaves). What went wrong is said on standard error; where not all could\n\
        be read, no line is printed.\n",
    }
}

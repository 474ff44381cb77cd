// Texts compared.
#![tactic(auto)]

ghost use Rattle.std.specs.Prelude.{◌≡◌};
ghost use Rattle.words.specs.Words.{starts_with, same as sameWord};

// Do the bytes start with this text?
#[tactic(auto, using(crate::proofs::Starts::starts))]
pub fn starts_with(bytes: &[u8], text: &[u8]) -> bool
    ensures { result ≡ starts_with text.now bytes.now }
{
    bytes.starts_with(text)
}

// Are they this text, and no more?
#[tactic(auto, using(crate::proofs::Starts::is_same))]
pub fn same(word: &[u8], text: &[u8]) -> bool
    ensures { result ≡ sameWord text.now word.now }
{
    word == text
}

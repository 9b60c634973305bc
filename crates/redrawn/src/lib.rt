// A list of strokes as HP-GL, by definition (document 02, CR 6), and what is claimed of the text: a fresh machine reads the strokes back out of it, and no number of it could be
// shorter. Definitions and laws, in specs/. The crate redrawing writes it.
#![tactic(auto)]

ghost use Rattle.std.specs.Prelude.{◌≡◌};
ghost use Rattle.redrawn.specs.Redrawn.{refusal_number};

// Why a list is not written.
#[derive(Clone, Copy)]
pub enum Refusal {
    // a stroke has another pen or end
    NotWritable,
    // the output is too short
    TooShort,
}

impl Refusal {
    // Document 02's number.
    pub fn number(self) -> u8
        ensures { result ≡ refusal_number self }
    {
        match self {
            Refusal::NotWritable => 32,
            Refusal::TooShort => 33,
        }
    }
}

// The words of the desk: what the numbers of documents 01 and 02 mean and what to do about them, and what becomes of instructions that the machine does not have.
// specs/Words.antt and specs/Names.antt have the same tables.
#![tactic(auto)]

ghost use Rattle.std.specs.Prelude.{◌≡◌, ◌≤◌, length};
ghost use Rattle.words.specs.Words.{cause_of, advice_of, of_foreign, of_kind};
ghost use Rattle.words.specs.Names.{same_name, kind_in, kind_of, has_of, refused_kind, harmless_of};

// Why a byte or a call is refused with a number.
#[tactic(auto, unfolding(crate::specs::Words::cause_of, hpgl::specs::Trace::bytes, hpgl::specs::Trace::bytes_from))]
pub fn cause(number: u8) -> &'static str
    ensures value { result.now ≡ cause_of number }
    ensures upper_bound { length result.now ≤ 72 }
{
    match number {
        1 => "unknown byte, or an instruction that the machine does not have",
        2 => "wrong count of numbers",
        3 => "number or setting out of range",
        6 => "location more than 1,000,000 units away",
        7 => "polygon of more than 1024 bytes",
        10 => "bad hard limits",
        11 => "unknown pitch code",
        12 => "stroke out of the range of the drive",
        20 => "byte given while a segment or a reply waits",
        21 => "list of strokes full",
        31 => "buffer shorter than the reply",
        _ => "not a number of the table",
    }
}

// What to do about it.
#[tactic(auto, unfolding(crate::specs::Words::advice_of, hpgl::specs::Trace::bytes, hpgl::specs::Trace::bytes_from))]
pub fn advice(number: u8) -> &'static str
    ensures value { result.now ≡ advice_of number }
    ensures upper_bound { length result.now ≤ 72 }
{
    match number {
        1 => "Leave it out, or draw it with the instructions that the machine has.",
        2 => "Look for a missing or an extra number before this place.",
        3 => "Keep to the range that the manual gives for this number.",
        6 => "Look at the scaling (IP, SC) and the relative moves (PR).",
        7 => "Divide the polygon into smaller ones.",
        10 => "Give left below right, bottom below top, each -32768 to 32767.",
        11 => "Give 0, 1, 2 or 3: a unit is 0.125, 0.25, 0.5 or 1 mm.",
        12 => "Keep the ends of the stroke within -32768 to 32767.",
        20 => "Draw until idle, or fetch the reply; then give the byte again.",
        21 => "Take the strokes out, then feed the bytes that are left.",
        31 => "Fetch again with a longer buffer: 37 bytes hold every reply.",
        _ => "None.",
    }
}

// What becomes of an instruction that the machine does not have, by its kind.
#[tactic(auto, unfolding(crate::specs::Words::of_foreign, hpgl::specs::Trace::bytes, hpgl::specs::Trace::bytes_from))]
fn of_foreign(kind: u8) -> &'static str
    ensures value { result.now ≡ of_foreign kind }
    ensures upper_bound { length result.now ≤ 72 }
{
    match kind {
        b'a' => "of curves only CI, AA, AR are known: the next line starts where it began",
        b'b' => "bytes that name no instruction, as of escape sequences, are passed over",
        b'e' => "coded lines are not known: letters of the code are read as instructions",
        b'f' => "fills are not painted: paint the edges alone (EA, ER, EP, CI)",
        b'h' => "escape sequences (ESC . ..) set up a plotter's line: no line is another",
        b'l' => "text is not painted: turn letters into lines first",
        b'n' => "pages, paper, colours and ends of lines: no line is another",
        b'o' => "no reply is given to what a file asks",
        b's' => "settings of text do nothing: text is not painted",
        b't' => "LT alone changes nothing; with numbers its lines come out without gaps",
        b'v' => "speed and force of the pen are the carriage's own",
        b'w' => "the width of a line is that of the paint",
        _ => "not an instruction of this machine: it is passed over",
    }
}

// What becomes of an instruction that is refused, by its kind; k is for one that is not known in polygon mode.
// A kind is a letter and no enum: the table below has letters, and of_kind and harmless answer for every byte (docs/CONTRACTS.md).
#[tactic(auto, unfolding(crate::specs::Words::of_kind, hpgl::specs::Trace::bytes, hpgl::specs::Trace::bytes_from))]
pub fn of_kind(kind: u8) -> &'static str
    ensures value { result.now ≡ of_kind kind }
    ensures upper_bound { length result.now ≤ 72 }
{
    match kind {
        b'c' => "not carried out: the setting stays as it was",
        b'd' => "not carried out: nothing of it is painted",
        b'k' => "lost: it is not known between PM0 and PM2. End the polygon before it",
        b'm' => "not carried out from there on: the next line starts where the pen was",
        b'p' => "not carried out, or left open: the polygon is another than was meant",
        b'q' => "not carried out: no reply is made of it",
        _ => of_foreign(kind),
    }
}

// Whether two letters are these.
#[tactic(auto, unfolding(crate::specs::Names::same_name))]
fn same(first: u8, second: u8, a: u8, b: u8) -> bool
    ensures { result ≡ same_name first second a b }
{
    first == a && second == b
}

// The kind of a name in a list, in which each has its kind after it, and a blank; x where the list does not have it.
fn kind_in(names: &[u8], first: u8, second: u8) -> u8
    ensures { result ≡ kind_in names.now first second }
{
    let (rows, _) = names.as_chunks::<4>();
    for &[a, b, kind, _] in rows {
        if same(a, b, first, second) {
            return kind;
        }
    }
    b'x'
}

// The kind of an instruction, by its name: of the machine's own (c, d, m, p, q), or of the manual and of HP-GL/2, which it does not have; ?? is for a byte of no name, ^[ for one of an escape sequence.
pub fn kind(first: u8, second: u8) -> u8
    ensures { result ≡ kind_of first second }
{
    kind_in(
        b"DFc INc IPc IWc ROc SCc SPc CId EAd EPd ERd AAm ARm PAm PDm PRm PUm PMp OAq OEq OHq OPq OWq ATa BRa BZa RTa ??b ^[h PEe ACf EWf FPf FTf RAf RFf RRf UFf WGf BLl CPl LBl PBl UCl DCo DPo IMo OCo ODo OFo OGo OIo OLo OOo OSo OTo ADs CAs CSs DIs DRs DTs DVs ESs LOs SAs SDs SIs SLs SRs SSs TDs LTt ULt BPn ECn LAn NPn PCn PGn PSn TRn APv ASv FSv VAv VNv VSv PTw PWw WUw ",
        first,
        second,
    )
}

// Whether a kind is one of the machine's own instructions.
#[tactic(auto, unfolding(crate::specs::Names::has_of))]
fn has(kind: u8) -> bool
    ensures { result ≡ has_of kind }
{
    matches!(kind, b'c' | b'd' | b'm' | b'p' | b'q')
}

// The kind of a refusal: an instruction that the machine has is refused with 1 in polygon mode alone.
#[tactic(auto, unfolding(crate::specs::Names::refused_kind))]
pub fn refused_kind(number: u8, first: u8, second: u8) -> u8
    ensures { result ≡ refused_kind number first second }
{
    let of_name = kind(first, second);
    if number == 1 && has(of_name) {
        return b'k';
    }
    of_name
}

// Whether what is painted is the same without it: escape sequences, page and paper, questions, settings of text, line types (those with numbers are counted
// apart), speed, force and width of a pen.
#[tactic(auto, unfolding(crate::specs::Names::harmless_of))]
pub fn harmless(kind: u8) -> bool
    ensures { result ≡ harmless_of kind }
{
    matches!(kind, b'h' | b'n' | b'o' | b'q' | b's' | b't' | b'v' | b'w')
}

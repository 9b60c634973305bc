// The table of instructions, and what is looked up in it.
#![tactic(auto)]

ghost use Rattle.std.specs.Prelude.{◌≡◌, ◌+◌, ◌*◌, ◌<◌, ◌≤◌, MatchOption, position};
ghost use Rattle.mnemonics.specs.Table.{rows, table, row_of, names_of, find_of, begins_name, is_label, count_fits, takes_pairs, has_room, known_in_polygon, changes_settings};

// An instruction's code is its place in the table. The four that take pairs come first; another instruction is another row at the end, so that no code changes.
// Numbers and no enum: count_fits and the others of docs/CONTRACTS.md answer for every number, and the list of a saved machine holds the code.
pub const PU: usize = 0;

pub const PD: usize = 1;

pub const PA: usize = 2;

pub const PR: usize = 3;

pub const IN: usize = 4;

pub const DF: usize = 5;

pub const EP: usize = 6;

pub const IP: usize = 7;

pub const SC: usize = 8;

pub const IW: usize = 9;

pub const RO: usize = 10;

pub const SP: usize = 11;

pub const PM: usize = 12;

pub const CI: usize = 13;

pub const EA: usize = 14;

pub const ER: usize = 15;

pub const AA: usize = 16;

pub const AR: usize = 17;

pub const OA: usize = 18;

pub const OP: usize = 19;

pub const OW: usize = 20;

pub const OH: usize = 21;

pub const OE: usize = 22;

pub const ROWS: usize = 23;

// The columns: two letters, least and most numbers, what the count goes up by, and whether the instruction is known in
// polygon mode and changes settings. Numbers in a row and no struct of names: a row reads as its row of specs/Table.antt does.
const FIRST: usize = 0;

const SECOND: usize = 1;

const LEAST: usize = 2;

const MOST: usize = 3;

const STEP: usize = 4;

const POLYGON: usize = 5;

const SETTINGS: usize = 6;

const COLUMNS: usize = 7;

// As most: no limit. Such an instruction takes pairs, each carried out on the byte that ends it.
const ANY: u8 = 255;

const TABLE: [[u8; COLUMNS]; ROWS] = [
    [b'P', b'U', 0, ANY, 2, 1, 0],
    [b'P', b'D', 0, ANY, 2, 1, 0],
    [b'P', b'A', 0, ANY, 2, 1, 0],
    [b'P', b'R', 0, ANY, 2, 1, 0],
    [b'I', b'N', 0, 0, 1, 1, 1],
    [b'D', b'F', 0, 0, 1, 0, 1],
    [b'E', b'P', 0, 0, 1, 0, 0],
    [b'I', b'P', 0, 4, 2, 0, 1],
    [b'S', b'C', 0, 4, 4, 0, 1],
    [b'I', b'W', 0, 4, 4, 0, 1],
    [b'R', b'O', 0, 1, 1, 0, 1],
    [b'S', b'P', 0, 1, 1, 0, 0],
    [b'P', b'M', 0, 1, 1, 1, 0],
    [b'C', b'I', 1, 2, 1, 0, 0],
    [b'E', b'A', 2, 2, 1, 0, 0],
    [b'E', b'R', 2, 2, 1, 0, 0],
    [b'A', b'A', 3, 4, 1, 0, 0],
    [b'A', b'R', 3, 4, 1, 0, 0],
    [b'O', b'A', 0, 0, 1, 1, 0],
    [b'O', b'P', 0, 0, 1, 1, 0],
    [b'O', b'W', 0, 0, 1, 1, 0],
    [b'O', b'H', 0, 0, 1, 1, 0],
    [b'O', b'E', 0, 0, 1, 1, 0],
];

// The row of an instruction; a code beyond the table has none.
fn row(op: usize) -> Option<[u8; COLUMNS]>
    ensures { MatchOption result (rows ≤ op) (λ row. (op < rows) × (row ≡ row_of op)) }
{
    TABLE.get(op).copied()
}

// Two letters as one number, so that they are compared at once.
fn both(first: u8, second: u8) -> u16
    ensures { (result ≡ first * 256 + second) × (second < 256) }
{
    u16::from(first) * 256 + u16::from(second)
}

// Whether a row has these two letters.
fn names(row: &[u8; COLUMNS], first: u8, second: u8) -> bool
    ensures { result ≡ names_of row.now first second }
{
    both(row[FIRST], row[SECOND]) == both(first, second)
}

// The letters that names begin with, A, C, D, E, I, O, P, R and S, as bits from that of A on.
const BEGINNINGS: u32 = 0x6c11d;

// Whether an instruction's name begins with a letter. Most other names are told by it at once, without a search and without a branch for each letter.
fn begins_name(first: u8) -> bool
    ensures { result ≡ begins_name first }
{
    first.is_ascii_uppercase() && (BEGINNINGS >> (first - b'A')) % 2 == 1
}

// The place of the row with these two letters.
fn place(first: u8, second: u8) -> Option<usize>
    ensures { result ≡ position (λ row. names_of row first second) table }
{
    TABLE.iter().position(|row| names(row, first, second))
}

// The instruction that two letters name.
pub fn find(first: u8, second: u8) -> Option<usize>
    ensures { result ≡ find_of first second }
{
    if !begins_name(first) {
        return None;
    }
    place(first, second)
}

// LB, a name beside the table.
pub fn is_label(first: u8, second: u8) -> bool
    ensures { result ≡ is_label first second }
{
    both(first, second) == both(b'L', b'B')
}

// Whether an instruction may end after n numbers.
#[tactic(auto, using(exact::proofs::Rules::rules), unfolding(crate::specs::Table::count_fits, crate::specs::Table::cell_of))]
pub fn count_fits(op: usize, n: u8) -> bool
    ensures { result ≡ count_fits op n }
{
    if takes_pairs(op) {
        return n % 2 == 0;
    }
    let Some(row) = row(op) else {
        return false;
    };
    row[LEAST] <= n && n <= row[MOST] && (n - row[LEAST]) % row[STEP] == 0
}

// Whether an instruction has room for one more number after n.
#[tactic(auto, using(exact::proofs::Rules::rules), unfolding(crate::specs::Table::has_room, crate::specs::Table::cell_of))]
pub fn has_room(op: usize, n: u8) -> bool
    ensures { result ≡ has_room op n }
{
    if takes_pairs(op) {
        return n < ANY;
    }
    let Some(row) = row(op) else {
        return false;
    };
    n < row[MOST]
}

// Whether an instruction takes pairs: the first four do. Asked for every number, so the table is not laid out; nor is it for
// their counts, above.
pub fn takes_pairs(op: usize) -> bool
    ensures { result ≡ takes_pairs op }
{
    op < IN
}

// Whether an instruction is known in polygon mode.
#[tactic(auto, using(exact::proofs::Rules::rules), unfolding(crate::specs::Table::known_in_polygon, crate::specs::Table::cell_of))]
pub fn known_in_polygon(op: usize) -> bool
    ensures { result ≡ known_in_polygon op }
{
    let Some(row) = row(op) else {
        return false;
    };
    row[POLYGON] == 1
}

// Whether an instruction changes settings.
#[tactic(auto, using(exact::proofs::Rules::rules), unfolding(crate::specs::Table::changes_settings, crate::specs::Table::cell_of))]
pub fn changes_settings(op: usize) -> bool
    ensures { result ≡ changes_settings op }
{
    let Some(row) = row(op) else {
        return false;
    };
    row[SETTINGS] == 1
}

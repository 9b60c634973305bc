// Redraw (document 02, CR 6): a list of stroke records, as feed stores them, written as HP-GL into a lent output.
#![tactic(auto)]

ghost use Rattle.std.specs.Prelude.{◌≡◌, length};
ghost use Rattle.redrawn.specs.Redrawn.{written_of, output_of};

use hpgl::Stroke;
use redrawing::put_list;
pub use redrawn::Refusal;

// Writes the strokes from the start of the output on: the list is judged first, and then written.
pub fn redraw(list: &[Stroke], out: &mut [u8]) -> Result<usize, Refusal>
    ensures value { result ≡ written_of list.now (length out.old) }
    ensures out_after { out.new ≡ output_of list.now out.old }
{
    put_list(&list, out)
}

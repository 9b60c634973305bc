// Which lists of numbers are a machine: just those that save writes of a machine that may be used, decided row by row. Definitions in specs/, laws in proofs/:
// Sound.antt says what is tested, SoundLaws.antt that it is just these lists. The crate soundness has the code.
#![tactic(auto)]

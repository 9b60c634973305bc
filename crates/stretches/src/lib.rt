// Bytes without letters, met outside an instruction: what a machine makes of such a stretch. Definitions and laws, in specs/.
// No name begins there, so that nothing is drawn and nothing changes but the reader: each byte means nothing, or is refused with 1.
#![tactic(auto)]

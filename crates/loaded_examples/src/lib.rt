//! Examples that can be loaded: the scripts of `mg_examples` and their entries, as bytes that the readers accept.
//!
//! That the promise over runs isn't hollow is shown by scripts and entries as tables (`mg_examples`). Here the bytes of a script and of a certificate
//! stand beside each of these, and the laws are of bytes, not of trees: the readers' definitions of TOML and JSON, of faults and of what a document
//! means are computed on them, and give that table and these entries (`read`). So the line that `check` writes of these bytes is known too, and
//! no other is but for want of memory (`told`). The same bytes and lines stand in files of `examples/` and `tests/cases`, and `tools/gate/texts`
//! compares the two. No function here has a body but the calls of laws: its contract is the law.
#![tactic(auto)]

pub mod read;
pub mod told;

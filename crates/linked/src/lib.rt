// One true day through the exported calls: theorems only. Whoever links the library from C or Rust makes these calls;
// `proofs/` says that the words and the rooms that he then holds are the clerk's.
#![tactic(auto)]

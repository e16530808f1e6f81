// What the exported calls promise beyond one call's own contract: theorems only. A refused call changes nothing, a
// number that is no edition's is refused by each of them, and what was written is read back.
#![tactic(auto)]

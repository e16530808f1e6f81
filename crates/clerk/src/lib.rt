// The clerk and one true day: definitions and theorems only. `specs/` says what a clerk works out from the sheet, the
// room and the used messages, `proofs/` that the book, as it is called, is his.
#![tactic(auto)]

// Layouts as tables: a language and its laws, no code. `specs/` says what a table says of bytes and of values;
// `proofs/` says what holds of every table whose fields tile it. The tables themselves stand with the code that reads
// and writes by them.
#![tactic(auto)]

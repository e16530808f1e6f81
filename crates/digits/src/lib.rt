// Number fields in digits, as PLS 1.1 has them: a language and its laws, no code. `specs/` says when bytes spell a
// number and how a number is written; `proofs/` says what holds of every width and every least number of digits.
#![tactic(auto)]

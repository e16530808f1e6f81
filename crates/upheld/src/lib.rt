// What every call on a book upholds: theorems only. It touches no lent byte but its own, the book stays one of its
// edition, and a message of another edition is refused.
#![tactic(auto)]

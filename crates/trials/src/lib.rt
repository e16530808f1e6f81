// Days to try by hand and what each premise of one true day is for: tables and theorems only, worked from the calls'
// promises and from the clerk's definitions.
#![tactic(auto)]

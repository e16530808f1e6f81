// Demand 2 as theorems, of every edition: `message` reads exactly what obeys the edition's layouts
// (`packing/specs/Layouts.antt`, `pls/specs/Layouts.antt`). What it read it writes back: of NLS Plus the same bytes
// come back; of PLS the record does, and the bytes do where each number is spelt as we write it. There is no code here.
#![tactic(auto)]

// One true day through the tape: definitions and theorems only. What a program prints of a tape is what the clerk
// shows; of day W's tape that is worked out, byte for byte.
#![tactic(auto)]

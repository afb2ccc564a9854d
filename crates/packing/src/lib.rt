// Definitions and theorems alone: the numbers by which answers cross to C, and that none is lost.

#![tactic(auto)]

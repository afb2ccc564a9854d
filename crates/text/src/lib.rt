// Theorems only: laws of lines and rows, which the reader and the writer cite (document 01, "Lines and rows").

#![tactic(auto)]

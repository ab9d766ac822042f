// Theorems only: demand 1, the table of refusals as rows of every answer, and what document 02 asks of locations and
// decimals, a theorem for each clause, over the definitions that the promises cite (docs/DEMANDS.md). Stands on
// `reader`, `writer`, `numeral`, `face`, `face_values`.
// The rules in words: docs/FORMAT.md, "What a caller may rely on".
#![tactic(auto)]

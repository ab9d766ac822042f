// Theorems only: what document 02, §11, asks of the lenient reading, a theorem for each clause, over the definitions that
// the promises cite (docs/DEMANDS.md). Stands on `lenient`, `demands_rows`, `face_lenient`.
// The rules in words: docs/FORMAT.md, "Older recorders: a lenient reading".
#![tactic(auto)]

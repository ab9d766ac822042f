// Theorems only: demands 2 and 3, and the requests of document 02 on what is written, a theorem for each clause, over the
// definitions that the promises cite (docs/DEMANDS.md); demand 1 is `demands_rows`, samples and the worked values are
// `demands_samples`. Stands on `afresh`, `growth`, `ignored`, `reader`, `writer`.
// The rules in words: docs/FORMAT.md, "What a caller may rely on".
#![tactic(auto)]

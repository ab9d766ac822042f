// Theorems only: what document 02, §5, asks of the quick questions, a theorem for each clause, over the definitions
// that the promises cite (docs/DEMANDS.md). Stands on `shortcut`, `demands_rows`, `quick`, `face`, `face_values`.
// The rules in words: docs/FORMAT.md, "One trace, quickly".
#![tactic(auto)]

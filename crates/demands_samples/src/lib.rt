// Theorems only: what samples are read as, and what writing them keeps, a theorem for each clause, over the definitions
// that the promises cite (docs/DEMANDS.md); the marked worked values as one table (Worked). Stands on `growth`,
// `ignored`, `reader`, `encode`, `decode`.
// The rules in words: docs/FORMAT.md, "What a caller may rely on".
#![tactic(auto)]

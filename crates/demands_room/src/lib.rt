// Theorems only: that the room a host asks for beforehand is the room that a start or an addition takes, over the
// definitions that the promises cite (docs/DEMANDS.md). Stands on `demands_rows`, `writer`, `start`.
// The rules in words: docs/FORMAT.md, "What we write".
#![tactic(auto)]

// Theorems only: the file that a list of traces defines, by layout alone (FileOf), and that a start and any additions,
// refused ones between them, leave exactly it (Afresh, Calls). Document 01's example byte for byte is in Worked. Stands
// on `writer`.
// The rules in words: docs/FORMAT.md, "What we write".
#![tactic(auto)]

// Theorems only: bytes that nothing reads. Two images that differ in such bytes alone get the same answer from the
// check and from every question, refusals and places included (document 01, "ignored" wherever it stands). Areas has
// the strings, Images the check, Reads the questions. Stands on `reader`.
// The rules in words: docs/FORMAT.md, "The file block", "The trace block", "Strings".
#![tactic(auto)]

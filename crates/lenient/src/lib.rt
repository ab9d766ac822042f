// The lenient reading beside the strict one (document 02, §11), theorems without code: what the strict manner lets
// through the lenient one lets through and answers alike (Alike, Answers), and what else it lets through is what document
// 02 names (Forgiven, Never). Stands on `reader` and what it stands on.
// The rules in words: docs/FORMAT.md, "Older recorders: a lenient reading".
#![tactic(auto)]

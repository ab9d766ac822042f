// Theorems only, for any accepted image: which bytes an addition changes (Frame), that the rules are still kept
// (StillKeeps), that every question on what was there answers as before (StillRead) and the new trace reads last
// (ReadsLast, TraceReads). Stands on `reader` and `writer`.
// The rules in words: docs/FORMAT.md, "What we write".
#![tactic(auto)]

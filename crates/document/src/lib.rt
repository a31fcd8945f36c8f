// The public OPB document beside 01: its own grammar and meaning (specs/Document.antt), and the theorems that every
// file of it within 01's limits is read as it means it (proofs/OpbDocument.antt), that what is written is of its
// grammar (proofs/WrittenDocument.antt), and which of 01's limits and wider forms are needed for that
// (proofs/Needed.antt). There is no code here. Assumes nothing.
#![tactic(auto)]

// What a web.xml says: its elements, what may stand where, the records that it gives, and the listing that is written for it. Definitions and theorems, no code. specs/Lib.antt says in which order to read.
#![tactic(auto)]

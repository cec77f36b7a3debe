// XML texts as far as a web.xml needs them: which bytes spell which tree, readers on lists for their parts, and the theorems. No code. specs/Lib.antt says in which order to read.
#![tactic(auto)]

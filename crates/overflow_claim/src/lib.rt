// Document 02, M-105: laws about what the overflow calls answer and leave. There is no code here.
#![tactic(auto)]

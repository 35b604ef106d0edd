// Theory alone: the ledger of demand 3 over any list of calls. It knows nothing of MRCP.
#![tactic(auto)]

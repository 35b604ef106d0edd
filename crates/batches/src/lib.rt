// Theory alone: one call for a buffer full of messages, as one call per message: document 02, K6.
#![tactic(auto)]

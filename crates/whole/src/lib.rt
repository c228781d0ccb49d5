// Laws of whole numbers: definitions in specs/, laws in proofs/Laws/. No function.
#![tactic(auto)]

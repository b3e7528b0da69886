// A piece whose sound is neither silence nor one block repeated: specs/. That it is accepted, and what its plain player and the panel give: proofs/. There is no code here.
#![tactic(auto)]

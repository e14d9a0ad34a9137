// The starred cases of document 01 as one table. There is no code here.
#![tactic(auto)]

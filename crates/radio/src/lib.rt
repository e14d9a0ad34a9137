// What happens on the radio in one round, for any protocol: who sends, hears and misses, and what a mark is worth. Definitions and laws; there is no code here.
#![tactic(auto)]

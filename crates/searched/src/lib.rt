// No code: what the search says, and Count and List, which are its two parts. Their meanings stand in specs/, beside
// each other.
#![tactic(auto)]

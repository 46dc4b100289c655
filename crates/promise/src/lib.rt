// The rules of a station as a model, and the watchers' promise proved of it. There is no code here: the station's calls
// are proved against the definitions in specs/, and the promise, over whole runs, is proved of these in proofs/.
#![tactic(auto)]

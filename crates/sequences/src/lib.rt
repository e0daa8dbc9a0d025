// Sequences of calls that each name one cone of a list, whatever deeds they are: rearranged in any way that keeps each cone's own order, every
// call's answer and all buffers at the end are the same. There is no code here.
#![tactic(auto)]

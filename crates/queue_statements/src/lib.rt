// Queues of carries and their opening: the contracts and laws, in specs/ and proofs/; the functions are of queue,
// opening_columns and queue_opening. No code stands here.
#![tactic(auto)]

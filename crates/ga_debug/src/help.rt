//! What the commands of transcripts do.

/// A line for each command of transcripts: its name, the words behind it, and what it does. (The
/// texts are this project's own: profile.)
pub const HELP: &str = "\
break NNN HHH             node NNN is held before it fetches at HHH: three hex digits, LABEL or LABEL+N
clear NNN HHH             it isn't held there any more
pass NNN                  a node that is held isn't held at its next fetch
try NNN SIDE              one try of the node; in a multiport read it takes from the side r, d, l or u
turn K                    K turns of all nodes, up to 1000000
until NNN HHH [xN] [K]    turns, K or 1000000 at most, until the node is about to fetch at HHH, after N times before
run [K]                   turns, K or 1000000 at most, until no node moves but those that spin
step NNN [K]              K steps of the node alone, or one: what each does and changes
trace NNN K               turns of all nodes until the node has made K steps: what each does and changes
watch NNN WHAT [= VALUE]  turns until WHAT changes, or becomes VALUE: a register, an address, at, stopped, right read ..
regs NNN                  the node's registers
mem NNN [HHH [COUNT]]     its memory, or COUNT words from HHH on, or one
ports NNN                 how many words it wrote at each port, and how many of them were read
node NNN                  its registers and stacks
code NNN [HHH]            the listing around HHH, or around the word in execution, which has a mark
depth NNN                 the most words on each of its stacks since the start, and where a stack had no room
sides NNN                 its neighbours, and the word that each of the two has posted there
expect NNN WHAT VALUE ..  ok if WHAT is VALUE, else both; words of memory up to eight. WHAT as for watch
breaks                    the breakpoints, and which node is held there
where                     the nodes that have started: where each is, for whom it waits, which are stuck
nodes                     the same, with one line for all idle nodes
map                       the chip as a picture: what each node does, the words that are pending, who is stuck
";

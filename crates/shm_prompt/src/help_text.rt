//! `help`: an example for each command, and for each line of a script.

/// The text of `help`.
pub(crate) const HELP: &str = "\
flight                         the envelopes on their way
sites                          what each site has of each page, the managers' books, and who waits
book 0 1                       the same of page 1 of segment 0, and who waits for it
segments                       the segments, as ipcs -m lists them
run                            delivers the oldest envelope until none is on its way
run 5                          the same, at most 5 times
undo                           takes back the last event that changed something, and says which
save story.txt                 writes the script of what stands to a file
open story.txt                 plays the script of a file into a fresh session
note the copy is stale         a note for the line that stands last, beside its row of a picture
notes story.notes              writes the notes to a file for shmdbg draw --notes
quit                           ends, as exit does
sites 2 preset 1               begins anew: 2 sites, and segment 0 of 1 page
load 1 0 4095                  site 1 loads byte 4095 through its attachment 0
store 0 0 7 255                site 0 stores 255 to byte 7 through its attachment 0
deliver 3                      hands envelope 3 over
repeat 3                       hands envelope 3 over, and keeps it
lose 3                         loses envelope 3
tick 1                         site 1 sends again what was not answered
restart 1                      site 1 forgets what it may forget
get 1 0 0 7 8192 600 c         shmget: site, uid, gid, key, bytes, mode, flags
attach 1 0 0 0 rw              shmat: site, uid, gid, segment, rw or ro
detach 1 0                     shmdt: site, attachment
remove 1 0 0 0                 shmctl IPC_RMID: site, uid, gid, segment
set 1 0 0 0 10 20 640          shmctl IPC_SET: site, uid, gid, segment, new uid, new gid, mode
stat 1 0 0 0                   shmctl IPC_STAT: site, uid, gid, segment
show 0 0                       page 0 of segment 0
back 2                         takes the last 2 events back
";

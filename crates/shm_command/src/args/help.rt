//! The texts of `--help`.

/// The version.
pub const VERSION: &str = "1.0.0";

/// Of the program: what goes in, what comes out, and the exit statuses.
pub const PROGRAM: &str = "\
A script says what each site does and which message arrives; `shmdbg replay`
answers each line of it. Input comes from standard input, or a script from a
file (`shmdbg replay my.shm`); journals are files:

    $ printf 'sites 2 preset 1\\nload 1 0 0\\ndeliver 0\\n' | shmdbg replay
    1 ready
    2 fault m0>0:Ask
    3 took m1>0:Hand

`shmdbg replay --help` tells what a script may say, `shmdbg run --help` what a
workload may, and so on for each command.

Exit status:
  0  done
  1  the script, workload, journal or notes have a fault; standard error tells
     the line, if there is one; or a site's journal isn't as its words say
  2  these words were refused, or asked for help or the version; nothing was
     read
  3  memory, reading, writing or a thread failed, standard input or output was
     closed, a script's file or a journal can't be opened, another process has
     the journal, or a site's clock ended
  4  a run gave up, or an audit found a cause";

/// Of a replay: the lines of a script.
pub const REPLAY: &str = "\
First line (N sites; segment 0 of P pages of 4096 bytes; F copies for a site):
  sites N | sites N preset P | sites N preset P frames F
Then lines of these, for a site S, an attachment A, an envelope K, a segment ID:
  load S A OFFSET                    read a byte
  store S A OFFSET BYTE              write a byte
  deliver K | repeat K | lose K      what the network does with envelope K
  tick S | restart S                 send again what S waits for; restart it
  get S UID GID KEY SIZE MODE FLAGS  FLAGS is -, c (create), x (exclusive) or cx
  attach S UID GID ID ro|rw          the reply tells the attachment, from 0
  detach S A
  remove S UID GID ID
  set S UID GID ID NEWUID NEWGID MODE
  stat S UID GID ID
  show ID INDEX                      a page at each site, and its manager's book
  back N                             take off the last N events
One blank between words, a line feed after each line, 200 bytes a line at most.
Output: the line's number, the answer, each envelope sent as mK>SITE:KIND.
A FILE is read whole before its first line is answered.
  $ printf 'sites 1 preset 1\\nstore 0 0 0 7\\nload 0 0 0\\n' | shmdbg replay
  1 ready
  2 stored
  3 byte 7
Exit status: 0 done, 1 the script has a fault, 2 these words were refused,
3 memory, reading or writing failed, or the file can't be opened.";

/// Of a run: the lines of a workload.
pub const RUN: &str = "\
Runs each of N sites in a thread of its own, with a network that loses and
repeats messages. First line (segment 0 of P pages of 4096 bytes):
  preset P
Then at most 9,999 lines of these, for a site S; one caller for each site runs
the site's lines in their order:
  load S OFFSET         read a byte
  store S OFFSET BYTE   write a byte
Nothing is printed until all lines are done, the sites have stopped, and an
audit of their logs has found one order of all steps in which each load gives
the byte that was stored last:
  $ printf 'preset 1\\nstore 0 0 7\\nload 1 0\\n' | shmdbg run --sites 2 --seed 1
  1 ready
  2 stored
  3 byte 7
  audit yes
Lines of two sites have no order between them: line 3 may also tell byte 0.
With --summary, lines behind these tell how many steps, faults, envelopes,
losses and repeats there were, and how long it took:
  $ printf 'preset 1\\nstore 0 0 7\\n' | shmdbg run --sites 1 --seed 1 --summary
  1 ready
  2 stored
  audit yes
  steps 1
  faults 0
  envelopes 0
  losses 0
  repeats 0
  took 1 ms
With --log DIR, the folder DIR has each site's log then, as site-0.log and so
on, a line for each step: its stamp, what came, the answer, what was sent.
  $ printf 'preset 1\\nstore 0 0 7\\n' | shmdbg run --sites 1 --seed 1 --log .
  $ cat site-0.log
  1 store 0 0 0 7 > stored
Exit status: 0 done, 1 the workload has a fault, 2 these words were refused,
3 memory, reading, writing or a thread failed, or a site's clock ended, 4 the
run gave up or its audit found a cause.";

/// Of a simulation: what is written.
pub const SIMULATE: &str = "\
Runs a workload M times over N sites, without threads: what happens next is
drawn each time, among the sites' next lines and the messages on their way. The
lines are those of `shmdbg run`. The first run's draws come from seed S, the
next one's from S+1, so the same words give the same text. With --lose, --repeat
and --restart things go wrong so often; without them nothing does.
Output: for each outcome how many runs came to it, the seed of the first of
them, and the byte of each line that loads; then how often each line faulted and
waited, and how many messages and moves of pages there were: the least, the
median and the greatest of all runs.
  $ printf 'preset 1\\nstore 0 0 7\\nload 1 0\\n' |
    shmdbg simulate --sites 2 --seed 1 --runs 1000 | head -5
  runs 1000
  outcome 1 count 98 seed 1
  line 3 byte 0
  outcome 2 count 902 seed 2
  line 3 byte 7
A run is given up after 1000 events for each line; `gave up` stands then in
place of a byte. What no run came to is not therefore impossible.
With --keep DIR, the folder DIR has a script of the first run of each outcome,
as outcome-1.shm and so on, for `shmdbg replay` and `shmdbg draw`.
Exit status: 0 done, 1 the workload has a fault, 2 these words were refused,
3 memory, reading or writing failed, or a script can't be saved.";

/// Of a site as a process.
pub const SITE: &str = "\
Reads lines from standard input, and writes those of its site: envelopes for
other sites, and answers to callers. All N sites and their callers
share one stream of lines, which anything may carry, and may lose, repeat and
reorder: give each site the lines of all. Segment 0 has P pages of 4096 bytes,
and each site has it attached as attachment 0. N and P are the same at all
sites. A caller asks site S under a tag T of its own:
  ask S T load 0 OFFSET        told when the site may read the page
  ask S T store 0 OFFSET BYTE  told when it may write to it
  ask S T read 0 OFFSET LENGTH told once all are loaded, 4096 bytes at most
  ask S T tick                 send again what isn't answered
docs/lines.md has all lines. A line that isn't for this site changes nothing.
Ask each site to tick now and then, as lines may be lost.
  $ printf 'ask 0 a store 0 5 7\\nask 0 b load 0 5\\n' |
    shmdbg site --sites 1 --me 0 --preset 1
  tell 0 a stored
  tell 0 b byte 7
With --journal the site writes each of its steps to FILE before it tells of it.
--new begins FILE, at the first start; started again without it, the site goes
on from there by a restart: callers ask again for what waited. One process alone
may have FILE. Without a journal a site must not be started again in a cluster
that goes on, as it would have forgotten what it held.
  $ printf 'ask 0 a store 0 5 7\\n' |
    shmdbg site --sites 1 --me 0 --preset 1 --new --journal site-0.journal
  tell 0 a stored
  $ printf 'ask 0 b load 0 5\\n' |
    shmdbg site --sites 1 --me 0 --preset 1 --journal site-0.journal
  tell 0 b byte 7
A running site makes its journal shorter by itself, when no ask waits: at
--shorten-at BYTES (64 MiB if nothing is said, 0 for never), but not below twice
the state that it begins with. The whole journal stays as FILE.1, FILE.2, ..;
with --forget it goes.
With --cluster each line that the site takes or tells has @NAME behind it, and
so has the journal's first line: lines and journals of another cluster aren't
taken. With --key each line has its digest behind that, HMAC-SHA-256 under the
key that lies in a file: no line without it is taken. Name and key are the same
at all sites, and callers seal their lines too.
  $ printf 'ask 0 a store 0 5 7 @north\\n' |
    shmdbg site --sites 1 --me 0 --preset 1 --cluster north
  tell 0 a stored @north
Exit status: 0 its input ended, 1 FILE isn't as these words say: it isn't there,
is begun already, is damaged, is another's journal or none, or NAME or the key
can't be one, 2 these words were refused, 3 memory, reading or writing failed, a
file can't be opened, another process has FILE, or its site's clock ended.";

/// Of an audit of journals.
pub const AUDIT: &str = "\
Reads the journals of all N sites, one file for each, in the order of the sites.
Finds one order of all recorded steps in which each load gives the byte that was
stored last, or tells the cause why there is none. Standard input isn't read. A
file whose name begins with a hyphen comes after --, behind the options. Of a
journal that begins with a state it takes FILE.1, FILE.2 .. and FILE as one.
Output: that the audit is yes, and how many steps, loads and stores, and
envelopes there were:
  $ shmdbg audit --sites 2 site-0.journal site-1.journal
  audit yes
  steps 12
  accesses 3
  envelopes 6
Exit status: 0 the audit is yes, 1 a file is no journal (standard error tells it
and the line), or begins with another state than the file before it leads to, or
they aren't those of one set of sites of one cluster, 2 these words were refused, 3
memory, reading or writing failed, or a file can't be opened, 4 the audit found a
cause.";

/// Of what a journal has.
pub const JOURNAL: &str = "\
Reads the journal of a site, whichever it is, and changes nothing. Standard input
isn't read. A file whose name begins with a hyphen comes after --.
Output: the site, of how many, and how many pages segment 0 has; the cluster's
name, if it has one; how many steps are recorded, and the clock of the last; how
many bytes the file has, and how many of them are torn: they stand behind the
last whole batch, as a crash may leave them, and the site's next start cuts them
off; and how many whole batches there are. A batch has the steps of one read of
input, and a line behind them with their digest.
  $ shmdbg journal site-0.journal
  site 0
  sites 2
  pages 1
  steps 12
  clock 17
  bytes 6912
  torn 0
  batches 7
Exit status: 0 done, 1 the file is no journal (standard error tells the line),
is damaged, or has no marks, 2 these words were refused, 3 memory, reading or
writing failed, or the file can't be opened.";

/// Of `shorten`.
pub const SHORTEN: &str = "\
Makes the journal of a site shorter: it begins with the site's state then, and
not with its steps. No site may run on it meanwhile. The whole journal is kept as
FILE.1, or under the first number that is free. The new one is written as
FILE.new and made durable before it takes the name, so a crash at any moment
leaves the one or the other as FILE. An audit needs the steps: it takes FILE.1,
FILE.2 .. and FILE as one journal.
Output: under what name the whole journal is kept, how many bytes it has, and how
many the new one has.
  $ shmdbg shorten site-0.journal
  kept site-0.journal.1
  was 6912
  is 9012
Exit status: 0 done, 1 the file is no journal, is damaged, or has no marks, 2 these
words were refused, 3 memory, reading or writing failed, or the file can't be
opened, or another process has it.";

/// Of the prompt.
pub const PROMPT: &str = "\
Lines are those of a script, and
  flight    the envelopes on their way
  sites     the pages that were asked for, at each site, and who waits
  book S P  the same of page P of segment S
  segments  the segments, as ipcs -m lists them
  run [N]   hand over what is on its way, the oldest first, N or 10,000 at most
  undo      take back the last event that changed something
  save FILE the script of what stands
  open FILE play a script into a fresh session
  note TEXT keep a caption for the line that stands last
  notes FILE  the captions, as `shmdbg draw --notes` reads them
  help, ?   an example of each
  quit, exit
A wrong line changes nothing.
  $ printf 'sites 2 preset 1\\nload 1 0 0\\nrun\\n' | shmdbg prompt
Exit status: 0 done, 2 these words were refused, 3 memory, reading or writing
failed.";

/// Of a drawing.
pub const DRAW: &str = "\
Reads a script as `shmdbg replay` does, and writes the run that stands at its
end as a picture (SVG), which a browser shows. Time goes downwards; each site
has a line, whose look says what it has of the page; an arrow goes from where
an envelope was sent to where it was handed over.
A picture is of one page, and has what is about this page, or about none. With
--page it is that page; without, each page that the run touches has its own, one
below the other, in the order in which they are first touched.
With --steps it is one file for a browser (HTML), which needs no network: the
picture, and for each event what each site has of the page, its manager's book,
what each site waits for and what is on its way. Arrow keys go step by step.
With --notes each line `NUMBER TEXT` of that file puts the text beside the row
before which the picture shows the number; the opening's row is 1.
  $ printf 'sites 2 preset 1\\nload 1 0 0\\ndeliver 0\\n' > my.shm
  $ shmdbg draw my.shm > run.svg
  $ shmdbg draw --steps my.shm > run.html
  $ printf '2 a read fault\\n3 the manager hears of it\\n' > my.notes
  $ shmdbg draw --notes my.notes my.shm > run.svg
Exit status: 0 done, 1 the script or the notes have a fault, and nothing is
written, 2 these words were refused, 3 memory, reading or writing failed, or a
file can't be opened.";

//! The texts of the help.

pub(crate) const ABOUT: &str =
    "Software pipelining of innermost loops for a described VLIW machine";

pub(crate) const LONG_ABOUT: &str =
    "Software pipelining of innermost loops of 64-bit integer operations for a described VLIW machine.

The machine is a TOML text: its functional units, the number of its rotating registers and, for each
opcode, the latency and the reservation tables by which an operation may be issued. The loops are a
text of their own, with one statement a line.

Where operations are not those of such loops, as in the back end of a compiler, a text of scheduling
problems has machines of any sort, and on them operations with their values, reads and orders. `solve`
finds a schedule and registers for each problem, and `check` judges solutions that others have made.";

pub(crate) const LIMITS: &str =
    "Limits: 1,048,576 bytes for each text of a machine or of loops; 1,024 loops of a file, each of 1 to 128
statements, with at most 32 arrays and 64 parameters; names of 1 to 16 bytes; 1 to 64 units; 1 to 256
registers; 1 to 8 alternatives of an opcode, each of 1 to 16 rows; latencies of 1 to 64 cycles;
trip counts of 0 to 100,000. 16,777,216 bytes for each text of problems or of solutions; 4,096 problems,
each of 1 to 128 operations, with at most 256 values, 2,048 reads and 16,384 edges; names of 1 to 64
bytes; 64 units, 8 files and 256 kinds of a machine; 1 to 16 alternatives of a kind, each of 1 to 16
holds.

A path that is `-` is the standard input, and `./-` a file of that name. Where a command takes two texts,
one of them may come from it.

Exit status: 0 done; 1 done, but some loop has no kernel at any interval that was tried, some problem is
not solved, or some problem has no solution that holds; 2 the command line is refused; 3 a file can't be
read; 4 the machine is refused, or the text of problems; 5 the loops are refused, or have none of a name
that was given, or an opcode has no reservation table, or the text of solutions is refused; 6 the output
can't be written; 7 out of memory. With 3 to 7 one line on the standard error tells what is wrong. Only
`lint` prints the faults of texts to the standard output; it ends with 4 where one is of the machine, and
else with 5.";

pub(crate) const SCHEDULE_ABOUT: &str = "Find a kernel for each loop, and print the listing";

pub(crate) const SCHEDULE_LONG_ABOUT: &str = "Find a kernel for each loop, and print the listing.

The initiation interval is the number of cycles from the start of an iteration to the start of the
next one. A kernel is the code that runs once in each interval, with operations of several iterations
in it. For each loop the intervals from its lower bound MII on are tried by iterative modulo scheduling,
and the first that gives a kernel is taken. Prints for each loop, in the order of the file, a line

  loop NAME ops O res R rec C mii M ii I stages S
  loop NAME ops O res R rec C mii M failed to T: CAUSE

The lines of a kernel follow the first form. O, R, C and M are as `modsched bounds` prints them. I is the
interval of the kernel, in cycles. S is its number of stages, and so the number of iterations that are under
way at a time, each in a stage of its own.

The second form stands where none of the intervals from M to T gives a kernel. CAUSE tells why T does
not: `table`, an operation would need a unit twice in one row of the modulo reservation table, however it
is issued; `budget`, the attempt has made all its placements, and some operation has no place; `stages`,
the schedule has more than 64 stages; `registers`, some value of the schedule that the attempt found gets no
rotating register.

The lines of a kernel, as an example:

  pre r2 0                            before the first turn, register r2 holds 0
  0: load r0 a[k+0] ?0                the operations of row 0
  1: add r2 r3 r1 ?1 | store b[k-2] r3 ?2
  out s r3                            at the end, the value s is in r3, as the last turn names it

A turn is one run through the rows 0 to I - 1, a cycle each. An operation has its opcode, the register
of its result, what it reads (registers, parameters, numbers), for a store its guard after `if`, and
its stage after `?`: it acts in the turns in which an iteration is in that stage. `!A` after the stage
names an alternative of the opcode other than the first, numbered from 0. In a[k-2], k is the number of
the turn, from 0. The registers rotate: with each turn the value of a register moves on to the register
with the next number, and that of the last one to r0.

The last line, loops A met B failed F, has the numbers of loops, of those with a kernel and of those
without. Where some loop has an out, the first line is `version 2`.

With --format json prints what `modsched json` prints.";

pub(crate) const RUN_ABOUT: &str = "Run each loop's kernel, and tell what it changed";

pub(crate) const RUN_LONG_ABOUT: &str = "Run each loop's kernel, and tell what it changed.

Finds the kernels that `modsched schedule` lists with the same options, and runs each on a machine with
rotating registers, where the iterations overlap. Prints for each loop, in the order of the file:

  loop NAME trip N     the loop was run N times
  ARRAY[CELL] VALUE    for each cell whose value is another one than before the run: the arrays in
                       order, their cells, -64 to N + 63, in ascending order
  out NAME VALUE       for each out of the loop, in order, changed or not

These are the lines of `modsched plain`. A loop that has no kernel is not run. It has the line of the
listing that tells why:

  loop NAME ops O res R rec C mii M failed to T: CAUSE

The last line, loops A met B failed F, has the numbers of loops, of those with a kernel and of those
without.";

pub(crate) const JSON_ABOUT: &str =
    "Find a kernel for each loop, and print the listing as a JSON document";

pub(crate) const JSON_LONG_ABOUT: &str =
    "Find a kernel for each loop, and print the listing as a JSON document.

Finds the kernels that `modsched schedule` lists with the same options, for programs that read them. The
document is one line, an object with the keys `version`, which is 1, `loops`, `met` and `failed`. A loop is
an object with `name`, `operations`, `resources`, `recurrences` and `mii`, and then `kernel`, or else
`failed_to` and `cause`. Constants, parameters and initial values of registers are strings, since they may
be greater than 2^53.";

pub(crate) const EXPLAIN_ABOUT: &str = "Tell why each loop has its interval";

pub(crate) const EXPLAIN_LONG_ABOUT: &str = "Tell why each loop has its interval.

Finds the intervals that `modsched schedule` lists with the same options, and prints for each loop, in the
order of the file, its line of `modsched bounds`, and then

  unit U uses N: NAME NAME*2 ..           for each unit that is used: how often, and by which operations,
                                          with the alternatives that the bound by resources counts;
                                          `full` after N where no unit is used more often
  units U V .. take N rows: N/J cycles, need K
                                          the fullest set of units: each iteration takes at least N rows of these J
                                          units, so that no interval is below K
  circuit delay D distance N needs C      a critical circuit, which has the bound by recurrences:
                                          D cycles over N iterations take intervals of at least C cycles.
                                          Its edges follow, as `modsched edges` prints them
  circuit none                            no circuit has it; of a problem: none needs more than one cycle
  try I CAUSE: ..                         for each interval that was tried and gave no kernel, why it did not,
                                          and the operations or the value that keep it from one; `try I to J
                                          CAUSE: ..` where that is the same for neighbours; `.., all need N` on the
                                          first and the last that fail for registers: with how many they would do
  try I kernel stages S                   the interval of the kernel
  held by WORD                            why it is no shorter: `units`, `recurrences` or `both`, by the bounds,
                                          `one cycle`, or the cause of the interval before it
  least possible                          no schedule has a shorter interval
  iteration C cycles                      how long one iteration takes, to its last result
  N iterations take N+D turns             how many turns a run of N iterations has
  op NAME at T slack K: U@O ..            when each operation is issued, by how many cycles the dependences
                                          alone let it be later, and the units that it takes, each O cycles
                                          after its issue
  value NAME lives A to B register K      when each value lives, in cycles of iteration 0, and its register
  registers need N                        the least number of registers with which each value gets one
  row U U .. live                         the head of the schedule as a grid: the units that are used
  R NAME/S . .. L                         each row of the interval: the operation with its stage in the slot of
                                          each unit, and how many registers hold a value
  use U P% ..                             how much of the interval each unit is taken, in hundredths
  idle units N                            units that no operation takes, where there are any

The causes are those of `modsched schedule`. The last line is that of the listing. A thread takes one loop
after another, so the cut changes nothing here.

With --format json prints all of that as one JSON document, on one line: an object with `failed`, `loops`, `met`
and `version`, which is 1. With --format html prints it as a page that any browser opens, without a network:
charts of the kernel, of when values live, of an iteration with the next two and of the dependences.

With one path alone, that of scheduling problems, prints the same lines of each problem up to `least possible`, but
not how many registers would do, and then its solution, as `modsched solve` prints it. One thread does all of this.";

pub(crate) const VARY_ABOUT: &str = "Tell what variants of the machine bring each loop";

pub(crate) const VARY_LONG_ABOUT: &str = "Tell what variants of the machine bring each loop.

Finds for each loop, in the order of the file, the interval that `modsched schedule` lists with the same
options, on the machine and on variants of it, and prints

  loop NAME ops O mii M ii I registers N  the interval on the machine as it is, in cycles, and the least number
                                          of registers with which the loop still has it
  loop NAME ops O mii M failed            in place of it, where the loop has no kernel there
  unit U doubled RESULT                   for each unit that the loop may take: it is there twice
  latency OPCODE L RESULT                 for each opcode of the loop with a latency above 1: it is L, one
                                          cycle less
  registers R RESULT                      for other numbers of registers: half as many, one less, one more,
                                          twice as many and 256

  ii J shorter, longer, same or new       RESULT: the interval there, against the one on the machine as it is;
                                          `new` where there was none
  failed                                  the loop has no kernel there
  -                                       such a machine would pass a limit

A variant that has no line leaves the interval of the loop as it is. The last line, loops A met B failed F,
has the numbers of loops, of those with a kernel on the machine as it is and of those without.

With --total prints of all loops together, where SUM is the sum of the intervals of those that have a kernel
and F the number of the others:

  total loops N ii SUM failed F           on the machine as it is
  VARIANT ii SUM failed F shorter A longer B
                                          on each variant that concerns some loop: A loops have a shorter interval
                                          there, and B a longer one

With --format json prints what is found of each loop as one JSON document, on one line: an object with
`failed`, `loops`, `met` and `version`, which is 1. A loop is an object with `ii`, `mii`, `name`, `operations`,
`registers` and `variants`.

A thread takes one loop after another, so the cut changes nothing here.";

pub(crate) const BOUNDS_ABOUT: &str = "Print lower bounds on each loop's initiation interval";

pub(crate) const BOUNDS_LONG_ABOUT: &str = "Print lower bounds on each loop's initiation interval.

The initiation interval is the number of cycles from the start of an iteration to the start of the
next one. Prints a line for each loop, in the order of the file:

  loop NAME ops O res R rec C mii M

O is the number of its operations. R is the bound by resources: the number of cycles for which an iteration takes
the busiest unit. An operation with several alternatives is counted on the one that leaves the busiest
unit taken the least; where a loop has such operations, a schedule below R may exist. C is the bound by
recurrences: the least interval that the circuits of dependences allow, 1 where there are none. M is the
greater of R and C. All three are in cycles.

The last line, loops A, has the number of loops.";

pub(crate) const EDGES_ABOUT: &str = "Print the dependences of each loop";

pub(crate) const EDGES_LONG_ABOUT: &str = "Print the dependences of each loop.

Prints for each loop, in the order of the file, its line of `modsched bounds`, and then

  op K NAME OPCODE latency L height H
  edge P NAME Q NAME KIND delay D distance N

An `op` line stands for each operation, in order: its number K from 0, the name of its value, or for a
store the cell, its opcode, after how many cycles its result lands, and its height: the length of the
longest path of dependences from it at the interval M, in cycles, by which the scheduler takes operations.

An `edge` line stands for each dependence of an operation Q on an operation P, in order: at an interval I,
Q of an iteration is issued at least D - I * N cycles after P of the same iteration. KIND is `value`, Q uses
the value of P, of N iterations ago; `memory`, Q loads a cell that P stores to; `anti`, Q stores to a cell
that P loads; or `output`, both store to one cell.

The last line, loops A, has the number of loops.

With one path alone, that of scheduling problems, prints for each problem a line `problem NAME ..` with the
same bounds, `op` lines with the kind of an operation for its opcode, and `edge` lines whose KIND is `value V`,
Q reads the value V of P, or `order`. The last line is problems P.";

pub(crate) const DOT_ABOUT: &str = "Draw the dependences of each loop, as graphs for Graphviz";

pub(crate) const DOT_LONG_ABOUT: &str = "Draw the dependences of each loop, as graphs for Graphviz.

Prints a directed graph for each loop, in the order of the file, in the language of Graphviz: a node for
each operation, and an edge for each dependence with its kind, its delay in cycles and, after an `@`, its
distance in iterations where that is not 0. Where some circuit needs the bound by recurrences, one such
circuit is bold. `modsched dot MACHINE LOOPS | dot -Tsvg -O` makes a picture of each.

With --scheduled a kernel is searched for as `modsched schedule` does with the same options, and each node
tells when its operation is issued: the cycle, its row and its stage, each stage in a colour of its own.
Edges to later iterations are dashed, and do not count in how the nodes are placed; the critical circuit is red.
The name of the graph is followed by the interval and the stages, or by why there is no kernel, and then
nodes have no times. Status 1 where some loop has no kernel. Without it the options of the search change nothing.

With one path alone, that of scheduling problems, prints such a graph for each problem.";

pub(crate) const PLAIN_ABOUT: &str =
    "Run each loop, one iteration after another, and tell what it changed";

pub(crate) const PLAIN_LONG_ABOUT: &str =
    "Run each loop, one iteration after another, and tell what it changed.

No machine is read. Prints for each loop, in the order of the file:

  loop NAME trip N     the loop was run N times
  ARRAY[CELL] VALUE    for each cell whose value is another one than before the run: the arrays in
                       order, their cells, -64 to N + 63, in ascending order
  out NAME VALUE       for each out of the loop, in order, changed or not

The last line, loops A, has the number of loops.";

pub(crate) const LINT_ABOUT: &str =
    "Tell the faults of a machine and of loops, each with its place";

pub(crate) const LINT_LONG_ABOUT: &str =
    "Tell the faults of a machine and of loops, each with its place.

Prints lines as editors and build tools read them, the machine's before those of the loops, and nothing
where no text has a fault:

  PATH:LINE:COLUMN: WORD: WHAT   what is wrong, and what is expected there; WORD has the bytes of the loops that
                                 the fault is about, and is left out where there are none

All faults are told, but of one line of the loops no two of a sort. WORD has of a machine the key in full, as in
ops.add.latency = 0. Lines and columns are counted from 1; a fault that has no place, as a key that is missing,
is told of line 0 and column 0.

With --format json the same faults are printed as one JSON document, on one line: an object with `faults`, each
with `column`, `line`, `message`, `path` and `word`.

One path is that of loops, or with --machine-only that of a machine. With both texts, and where the machine has no
fault, each statement is told too whose opcode the machine has no table for. An unknown name of the loops, and an
unknown key, unit or opcode of the machine, is told with the nearest one that may stand there, and a missing initial
value with the numbers that are missing.
No kernel is searched for.";

pub(crate) const SOLVE_ABOUT: &str = "Find a schedule and registers for each scheduling problem";

pub(crate) const SOLVE_LONG_ABOUT: &str =
    "Find a schedule and registers for each scheduling problem, and print the text of their solutions.

The initiation interval is the number of cycles from the start of an iteration to the start of the
next one. For each problem the intervals from its lower bound M on are tried by iterative modulo
scheduling, and the first that gives a schedule whose values fit the rotating registers is taken. Prints
for each problem, in the order of the file:

  # NAME ops O res R rec C mii M        the number of operations, the bounds by units and by recurrences,
                                        and the greater of them, in cycles
  # circuit OP OP .. takes D cycles over N iterations
                                        where C is above 1, a critical circuit
  # full UNIT UNIT ..                   the fullest units, which have R
  solution NAME ii I # stages S         the interval, in cycles, and the number of stages
  op NAME time T by N # ..              the operation is issued in cycle T of its iteration, by its alternative
                                        N, from 0; then its row, its stage, its units and its registers
  value NAME number K # ..              the value has the register number K of its rotating file; then when it
                                        lives, in cycles
  # value .., # initial .., # file .., # unroll ..
                                        values of files that are not allotted, registers that hold a value
                                        before the first turn, how many values each file holds at once, and
                                        how often the body is repeated where registers don't rotate
  end

For a problem that is not solved these lines stand after the bounds:

  # failed NAME at I: CAUSE             the last interval that was tried, and why it gives nothing: `table`,
                                        `budget`, `stages` or `registers`, with what it is about

The last line, # problems P met A failed B, has the numbers of problems, of those that are solved and of
those that are not. Whatever follows a # is for people: `modsched check` reads the rest.

With --format json the same is printed as one JSON document, on one line: an object with `failed`, `met`,
`problems` and `version`, which is 1. A problem is an object with `circuit`, `full`, `mii`, `name`,
`operations`, `recurrences` and `resources`, and then `solution`, or else `cause`, `culprit` and
`failed_to`.

A thread takes one problem after another, so the cut changes nothing here.";

pub(crate) const CHECK_ABOUT: &str = "Judge solutions of scheduling problems";

pub(crate) const CHECK_LONG_ABOUT: &str = "Judge solutions of scheduling problems.

A solution gives for its problem an interval, for each operation a time and an alternative, and for each
value of a rotating file a register number. It holds where no unit is taken twice in a cycle, each read and
each order is kept, and no register loses a value that is still wanted. Prints a line for each problem, in
the order of the file:

  NAME ok ii I stages S     the solution of the problem NAME holds: its interval, in cycles, and its number
                            of stages
  NAME broken: WHAT         what is missing, as `no solution`, `no time of OP` or `no number of VALUE`; or
                            what the solution breaks first: a number that is out of range, a unit that two
                            operations hold in one row, a read or an order that comes too early and by how
                            many cycles, or two values in one register, with a cycle

The last line, # problems P met A failed B, has the numbers of problems, of those whose solution holds and
of the others. A solution of a problem that is not in the file is a fault of the text of solutions.";

pub(crate) const MACHINE: &str = "The file with the machine's text";

pub(crate) const LOOPS: &str = "The file with the loops' text";

pub(crate) const MACHINE_OR_PROBLEMS: &str =
    "The file with the machine's text; or, where no other file is given, that with the text of scheduling
problems";

pub(crate) const SPARE_LOOPS: &str =
    "The file with the loops' text; left out where scheduling problems are given";

pub(crate) const MACHINE_OR_LOOPS: &str =
    "The file with the machine's text; or, where no other file is given, that with the loops' text";

pub(crate) const LOOPS_OF_TWO: &str =
    "The file with the loops' text; left out where one text is judged by itself";

pub(crate) const MACHINE_ONLY: &str = "The one file that is given has the machine's text";

pub(crate) const PROBLEMS: &str = "The file with the text of scheduling problems";

pub(crate) const SOLUTIONS: &str = "The file with the text of their solutions";

pub(crate) const TRIP: &str = "How many iterations each loop is run, from 0 to 100000";

pub(crate) const RATIO: &str =
    "How many times as many placements as there are operations an attempt at an interval may make, from 1 to
64. More may find a kernel at a shorter interval, but an interval that gives none takes longer";

pub(crate) const CEILING: &str =
    "How many intervals above MII are tried, from 0 to 255. More may find a kernel where there was none, but
a loop that has none at all takes longer";

pub(crate) const WORKERS: &str =
    "How many threads share the work, from 1 to 64. More may take less time. The output is the same with any
number";

pub(crate) const FORMAT: &str =
    "The format of what is printed: `text`, lines for people, or `json`, one document for programs";

pub(crate) const FORMAT_OR_PAGE: &str =
    "The format of what is printed: `text`, lines for people; `json`, one document for programs; or `html`, a
page for a browser. For scheduling problems `text` alone";

pub(crate) const SCHEDULED: &str = "Draw the graphs with the schedule of each loop or problem";

pub(crate) const TOTAL: &str =
    "Tell of all loops together what the machine as it is and each variant bring: the sum of their intervals";

pub(crate) const LOOP: &str =
    "Take only the loops of this name; may be given several times. The others of the file are read, but nothing
is printed of them, and no count has them";

pub(crate) const CUT: &str =
    "How many intervals of a loop a thread takes at once, from 1 to 256. With fewer, more threads can share
a hard loop; with more, less is spent on sharing. The output is the same with any number";

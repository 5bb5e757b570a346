//! What the program says of itself.

pub const VERSION: &str = "tm 0.1.0\n";

pub const HELP: &str = "\
tm runs preemptive control software, prints or records what it did, and replays what it recorded.

    tm trace IMAGE PLAN             prints the whole run of the plan on the image, from boot
    tm record IMAGE PLAN DUMP       puts the dump of that run's buffers, and prints nothing
    tm live IMAGE PLANT DUMP --slices N --len L [--tape NAME]
                                    runs N slices of L instructions beside the devices of the plant,
                                    puts the dump, then the tape of the slices, which is a plan,
                                    and prints what became of the interrupts
    tm watch IMAGE PLANT PREFIX --slices N --len L --observers K --looks M
                                    runs as live does beside K observers, each of which looks M times at
                                    the slices done so far, and puts the dump that each saw last as
                                    PREFIX.0, PREFIX.1 and on, and that of the whole run as PREFIX.end
    tm points IMAGE DUMP            prints the points from which the dump can be replayed
    tm replay IMAGE DUMP --from P [--workers W]
                                    prints the run from point P on, as the dump tells it, by W workers
    tm make N                       runs, records and replays the control cell on a plan made from N,
                                    and prints a summary
    tm load IMAGE T ELF NEW         puts the image with its task T loaded from an executable of a
                                    C compiler, as a new image, and prints nothing
    tm --help                       prints this
    tm --version                    prints the version

IMAGE, PLAN, PLANT, DUMP, ELF, NEW and NAME are names of files. A name isn't empty and doesn't begin
with a dash. Numbers are 1 to 20 decimal digits: P is below 2^64, the N of make below 2^32, W is 1 to
16, the N and L of live and watch are at most 1048576, K is 1 to 4, and M is 1 to 1000; T is 0 to 15
in one or two digits. PREFIX is the beginning of names, and not empty as they are. The tape has
another name than the dump; NEW may be the name of IMAGE or ELF.
An option stands anywhere behind the command, as --from P or --from=P.
A status other than 0 is told by one line on standard error.

    0   the text was printed, and the files were put
    2   the words are of no form above
    3   a file can't be read
    4   the image is refused, by its first bad line
    5   the plan or the plant is refused, by its first bad line
    6   the dump is refused: it is no dump of a run of the image
    7   the dump can't be replayed from the point: something that it needs is lost
    8   the tasks of the image don't do what the dump says
    9   standard output takes no more bytes, or a file can't be put
    10  the first or the second file is longer than its limit
    11  there is not enough memory
    13  the executable is refused: a task can't be loaded from it
    14  the image has no task of this number
";

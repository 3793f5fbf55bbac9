// How the program is used, for whoever starts it with an argument: it takes none, and would wait for standard input in silence.

use stdio::STDERR_FILENO;

// Says it on standard error, since standard output carries answers alone; by its number, since `eprint!` would ask the caller for a handle.
pub fn say() {
    io::write_all(
        STDERR_FILENO,
        b"\
        usage: malligovu <input >answers\n\
        It takes no argument. The first line of its input is the header, 'm t s order', or 'm t s' for order t; each\n\
        other line is a received word, its soft values parted by single spaces. See malligovu(1).\n",
    );
}

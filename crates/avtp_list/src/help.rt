// What the program says of itself.
use program::Texts;

pub(crate) fn texts() -> Texts {
    Texts {
        name: b"avtp_list",
        version: b"avtp_list 1.6\n",
        usage: b"usage: avtp_list [FILE..]\n\
        avtp_list --help says more.\n",
        help: b"usage: avtp_list [FILE..]\n\
        \n\
        Lists captures of AVTP streams, one after the other: for each a first line, a\n\
        line for each record, and an end line. Each starts with no stream admitted.\n\
        Without FILE, or where FILE is -, standard input is read.\n\
        \n\
        \x20 -h, --help  print this help\n\
        \x20 --version   print the version\n\
        \x20 --          every word after this one is a FILE\n\
        \n\
        A capture is a sequence of records. Each has a length (two bytes: how many\n\
        bytes follow in the record), a kind (two bytes) and a body. Numbers have their\n\
        lowest byte first; a stream id stands as it does in a frame.\n\
        \x20 kind 1      a frame: the time of its arrival in nanoseconds (eight bytes),\n\
        \x20             then the Ethernet frame, from destination to payload\n\
        \x20 kind 2      a stream is admitted: its id (eight bytes)\n\
        \x20 kind 3      a removal, refused with 44: not to be written any more\n\
        \x20 kind 5      a stream is admitted with a transit limit: its id, then the limit\n\
        \x20             in nanoseconds (four bytes, at most 2147483647)\n\
        \n\
        avtp_list(1) explains each line and each number.\n\
        \n\
        The exit status is 0 in every case (signals aside, as where the reader of a\n\
        pipe leaves). What went wrong is said on standard error, and only a capture\n\
        that was read to its end has a line that starts with \"end\": a script looks for\n\
        one such line for each capture.\n",
    }
}

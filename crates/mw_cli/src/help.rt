//! What help shows behind the options: sessions, lines and operations, and where more is said.

/// Of the program: one whole session.
pub(crate) const SESSION: &str = "\
A whole session on standard input:

  LOAD f 19
  P2
  5 1
  9
  3 1 4 1 5
  ELEMENT b 1 0 11
  P1
  3 1
  111
  RUN e ERODE f b
  FETCH e

and what is written to standard output, where \\1 is a byte of value 1:

  OK 0
  OK 1
  OK 2
  IMAGE 2 14
  P5
  5 1
  9
  \\1\\1\\1\\1\\1

`morphd batch --help` names all lines and operations. More: docs/PROTOCOL.md and
the man page morphd(1), with every line, reply, refusal and limit, and
docs/SERVER.md on `serve` and `listen`.";

/// Of `batch`: what the lines of a session ask for.
pub(crate) const LINES: &str = "\
The lines of a session:

  LOAD name len           keeps the PBM or PGM file of len bytes that follows
  ELEMENT name ox oy len  keeps the plain PBM file that follows as an element,
                          with its origin in column ox of row oy
  RUN name OPERATION      keeps the result of one of the operations below
  CANCEL name             ends a pending operation
  RELEASE name            lets go of a result; its name stays taken
  STATUS name             says how an entry stands
  WAIT name               says the same, once the entry is settled
  FETCH name              hands out an image or a curve
  QUIT                    ends the session

The operations, of an image f, a set X, a skeleton g, elements B, F and G, and
numbers k, L and N:

  ERODE f B               the least sample under the element
  DILATE f B              the greatest sample under the element
  OPEN f B                opening
  CLOSE f B               closing
  GRADIENT f B            dilation less erosion
  WTOPHAT f B             what an opening takes away
  BTOPHAT f B             what a closing adds
  RANK f B k              sample number k in rising order under the element
  THRESHOLD f k           the set of the places with a sample of k or more
  HITMISS f F G           erosion by F less dilation by G, stopping at 0
  SKELETON X B L          residues of up to L erosions
  RESTORE g B L           the set that a skeleton came from
  SPECTRUM f B N          the volumes after openings of growing size, up to N

`morphd --help` shows a whole session. More: docs/PROTOCOL.md and the man page
morphd(1), with every line, reply, refusal, limit and exit status.";

/// Of `listen`: two clients on one table.
pub(crate) const SHARING: &str = "\
A server for two clients, which ends when both have ended, and a client:

  morphd listen --port 7001 --sessions 2
  nc 127.0.0.1 7001

`morphd batch --help` names all lines and operations. More: docs/SERVER.md on
running a server, and docs/PROTOCOL.md and the man page morphd(1).";

/// Of `serve`: a server and a client.
pub(crate) const SERVING: &str = "\
A server, and a client that reads OK 0 and DONE 0 GREY 5 1 9:

  morphd serve --port 7001
  printf 'LOAD f 19\\nP2 5 1 9 3 1 4 1 5\\nSTATUS f\\nQUIT\\n' | nc 127.0.0.1 7001

`morphd batch --help` names all lines and operations. More: docs/SERVER.md on
running a server, and docs/PROTOCOL.md and the man page morphd(1).";

//! What the program prints about itself: its commands, and its version.

/// The line of the version. Only tests repeat the number.
pub(crate) const VERSION: &str = "openlink 0.1.0\n";

/// The commands, the limits of what they take, and the exit statuses.
pub(crate) const HELP: &str = "\
openlink resolves OpenURL 1.0 requests to links.
Link rules may come from anyone: their code is verified before it runs.

Commands, and what each prints:
  openlink expand [--list NAME].. TEMPLATE QUERY   the expansion of a URI Template (RFC 6570)
  openlink link RULES QUERY                        the link that a rule file gives
  openlink compile RULES CODE                      `N bytes`, after writing the rules' code to CODE
  openlink verify CODE                             `ok`, and bounds on the code's steps and bytes
  openlink show CODE                               the listing of a code file
  openlink upgrade OLD NEW                         `N bytes`, after writing OLD as version 2 to NEW
  openlink run CODE QUERY                          the link that a code file gives
  openlink inspect TABLE                           what is wrong with a holdings table
  openlink lint RULES TABLE                        what is doubtful in the rules of a target
  openlink explain RULES TABLE QUERY               which rule gives a link on each row, or why none does
  openlink resolve REGISTRY QUERY                  the menu: a target's name, a tab, its link
  openlink read QUERY                              the pairs of a query of any source, as they are read
  openlink find REGISTRY QUERY                     the links for a query of any source, each target once
  openlink serve REGISTRY PORT COUNT               where it listens; serves menus over HTTP
  openlink --help, -h or help                      this text
  openlink --version                               `openlink` and the version

TEMPLATE and QUERY (an OpenURL in the key/encoded-value form) are given directly.
RULES, TABLE, CODE, OLD, NEW and REGISTRY are paths. PORT 0 is a free port of 127.0.0.1.

Limits:
  TEMPLATE   8,192 bytes
  QUERY      65,536 bytes, 4,096 pairs
  RULES      65,536 bytes
  CODE       65,536 bytes, 256 names, 1,024 literals, 4,096 instructions
  run        1,048,576 bytes of output
  REGISTRY   65,536 bytes, 256 targets
  TABLE      16,777,216 bytes, 200,000 rows, 65,536 bytes a row
  COUNT      1 to 1,000,000 connections

Exit status:
  0   done
  1   no link, an empty menu, or a warning
  2   unknown command or wrong arguments
  3   a template, a query, a file or a target is rejected
  4   memory or device
";
